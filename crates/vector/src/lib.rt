// Vectors of three whole numbers, in steps of 0.01 mm: corners, shifts and directions.
#![tactic(auto)]

ghost use Rattle.std.specs.Prelude.{◌≡◌, ◌-ℤ◌, ◌*ℤ◌};
ghost use Rattle.std.specs.Int.{int_wrap, w64};
ghost use Rattle.vector.specs.Vectors.{◌·◌, ◌⨯◌, ◌+ᵛ◌, ◌-ᵛ◌, negᵛ, is_zero, inside, within, least_of, greatest_of, at_most};
ghost use Rattle.vector.specs.Vectors.{precedes as before};
ghost use Rattle.vector.specs.Wrapped.{wrappedᵛ};
ghost use Rattle.vector.specs.Laws.{Square};

// How far a coordinate of a corner may be from 0, in steps.
pub const REACH: u32 = 10_000;

// Vectors compare by x, then y, then z.
#[derive(Clone, Copy, PartialEq, Eq, PartialOrd, Ord, Hash, Debug)]
pub struct Vector {
    pub x: i64,
    pub y: i64,
    pub z: i64,
}

// Whether z lies from -m to m.
fn is_inside(z: i64, m: u32) -> bool
    ensures { result ≡ inside m z }
{
    let m = i64::from(m);
    (-m..=m).contains(&z)
}

// a·b − c·d modulo 2^64.
fn minor(a: i64, b: i64, c: i64, d: i64) -> i64
    ensures { result ≡ int_wrap w64 (a *ℤ b -ℤ c *ℤ d) }
{
    a.wrapping_mul(b).wrapping_sub(c.wrapping_mul(d))
}

impl Vector {
    // The vector whose components are all 0.
    pub const ZERO: Vector = Vector { x: 0, y: 0, z: 0 };

    // The product of a direction and a corner (dot product) modulo 2^64: exact wherever it fits 64 bits.
    pub fn dot(self, v: Vector) -> i64
        ensures { result ≡ int_wrap w64 (self · v) }
    {
        let x = self.x.wrapping_mul(v.x);
        let y = self.y.wrapping_mul(v.y);
        let z = self.z.wrapping_mul(v.z);
        x.wrapping_add(y).wrapping_add(z)
    }

    // self × v (cross product), each component modulo 2^64.
    pub fn cross(self, v: Vector) -> Vector
        ensures { result ≡ wrappedᵛ (self ⨯ v) }
    {
        Vector {
            x: minor(self.y, v.z, self.z, v.y),
            y: minor(self.z, v.x, self.x, v.z),
            z: minor(self.x, v.y, self.y, v.x),
        }
    }

    // f of the two x, of the two y and of the two z.
    fn by_component<F: Fn(i64, i64) -> i64>(self, v: Vector, f: F) -> Vector
        requires { F.IsAlwaysCallable f }
        ensures x { F.post f self.x v.x result.x }
        ensures y { F.post f self.y v.y result.y }
        ensures z { F.post f self.z v.z result.z }
    {
        Vector {
            x: f(self.x, v.x),
            y: f(self.y, v.y),
            z: f(self.z, v.z),
        }
    }

    // self + v, each component modulo 2^64.
    #[tactic(auto, using(std::proofs::lemmas::Int::wraps))]
    pub fn plus(self, v: Vector) -> Vector
        ensures { result ≡ wrappedᵛ (self +ᵛ v) }
    {
        self.by_component(v, |a, b| a.wrapping_add(b))
    }

    // self − v, each component modulo 2^64.
    #[tactic(auto, using(std::proofs::lemmas::Int::wraps))]
    pub fn minus(self, v: Vector) -> Vector
        ensures { result ≡ wrappedᵛ (self -ᵛ v) }
    {
        self.by_component(v, |a, b| a.wrapping_sub(b))
    }

    // The opposite, each component modulo 2^64.
    pub fn opposite(self) -> Vector
        ensures { result ≡ wrappedᵛ (negᵛ self) }
    {
        Vector::ZERO.minus(self)
    }

    // Whether each component is 0.
    pub fn is_zero(self) -> bool
        ensures { result ≡ is_zero self }
    {
        self == Vector::ZERO
    }

    // Whether a corner row comes before another: by x, then y, then z.
    pub fn precedes(self, v: Vector) -> bool
        ensures { result ≡ before self v }
    {
        self < v
    }

    // Whether each component is at most that of v, which no derived order says.
    pub fn is_at_most(self, v: Vector) -> bool
        ensures { result ≡ at_most self v }
    {
        self.x <= v.x && self.y <= v.y && self.z <= v.z
    }

    // The lesser of the two in each component.
    pub fn least(self, v: Vector) -> Vector
        ensures { result ≡ least_of self v }
    {
        self.by_component(v, i64::min)
    }

    // The greater of the two in each component.
    pub fn greatest(self, v: Vector) -> Vector
        ensures { result ≡ greatest_of self v }
    {
        self.by_component(v, i64::max)
    }

    // Whether each component lies from -m to m.
    pub fn is_within(self, m: u32) -> bool
        ensures { result ≡ within m self }
    {
        is_inside(self.x, m) && is_inside(self.y, m) && is_inside(self.z, m)
    }
}

// The cross product is at right angles to both of its factors.
pub fn cross_is_square()
    ensures { Square }
{}
