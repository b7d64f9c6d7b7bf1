// A tile's placement, the van's order for a tile, and the plain answers, on floats; `patterns` has them by the 32 bits that floats cross to C in.
#![tactic(auto)]

pub mod calls;
mod fixed;
pub mod patterns;

ghost use Rattle.std.specs.Prelude.{◌≡◌};
ghost use Rattle.placement.specs.Orders.{placed_by, answered};

// Six numbers of a kind: a, b and c of x, d, e and f of y.
#[derive(Clone, Copy)]
pub struct Six<T: Copy> {
    pub a: T,
    pub b: T,
    pub c: T,
    pub d: T,
    pub e: T,
    pub f: T,
}

// Two numbers of a kind, x and y.
#[derive(Clone, Copy)]
pub struct Two<T: Copy> {
    pub x: T,
    pub y: T,
}

// Six single floats: a·x + b·y + c and d·x + e·y + f.
pub type Placement = Six<f32>;

// Where something is, on floats.
pub type Point = Two<f32>;

// Keep, shift by c and f, or place by a full record: three cases, of which none is the lack of a value.
#[derive(Clone, Copy)]
pub enum Order {
    Keep,
    Shift(f32, f32),
    Place(Placement),
}

// The plain formula: products first, then sums from the left.
pub fn placed(p: Placement, x: f32, y: f32) -> Point
    ensures { result ≡ placed_by p x y }
{
    Two {
        x: p.a * x + p.b * y + p.c,
        y: p.d * x + p.e * y + p.f,
    }
}

// What an order answers. A NaN that is kept is a NaN; of its bits only `patterns` can speak.
pub fn answer(order: Order, x: f32, y: f32) -> Point
    ensures { result ≡ answered order x y }
{
    match order {
        Order::Keep => Two { x, y },
        Order::Shift(c, f) => Two { x: x + c, y: y + f },
        Order::Place(p) => placed(p, x, y),
    }
}
