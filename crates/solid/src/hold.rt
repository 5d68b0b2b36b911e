// A solid: rows that keep every rule. No other value of the type exists.
ghost use Rattle.std.specs.Prelude.{◌≡◌, true};
ghost use Rattle.rows.specs.Meaning.{rows_of};
ghost use Rattle.rules.specs.Rules.{lawful};

use rows::Tables;

#[derive(Clone, Copy)]
pub struct Solid {
    pub(crate) tables: Tables,
    ghost kept: { lawful (rows_of tables) ≡ true },
}
