// Placements and points by patterns: C's floats come in and go out as the 32 bits that they are.
ghost use Rattle.std.specs.Prelude.{◌≡◌};
ghost use Rattle.paper.specs.Single.{float};
ghost use Rattle.paper.specs.Placing as paper;
ghost use Rattle.placement.specs.Orders.{answered};
ghost use Rattle.placement.specs.Spots.{record_is, spot_is, loaded_from, unloaded, point_of, spot_of};

use super::{Order, Placement, Point, Six, Two, answer};
use single::value::{float_of, pattern_of};

// The six patterns of a placement, as a record holds them and the fixed kernel is loaded with them.
pub type Record = Six<u32>;

// A point by its patterns.
pub type Spot = Two<u32>;

impl Placement {
    // The patterns that the fixed kernel is loaded with.
    pub fn to_bits(self) -> Record
        ensures { result ≡ loaded_from self }
    {
        Six {
            a: pattern_of(self.a),
            b: pattern_of(self.b),
            c: pattern_of(self.c),
            d: pattern_of(self.d),
            e: pattern_of(self.e),
            f: pattern_of(self.f),
        }
    }

    // The placement that a record writes.
    pub fn from_bits(k: Record) -> Placement
        ensures { result ≡ unloaded k }
    {
        Six {
            a: float_of(k.a),
            b: float_of(k.b),
            c: float_of(k.c),
            d: float_of(k.d),
            e: float_of(k.e),
            f: float_of(k.f),
        }
    }
}

impl Point {
    // The point's patterns.
    pub fn to_bits(self) -> Spot
        ensures { result ≡ spot_of self }
    {
        Two {
            x: pattern_of(self.x),
            y: pattern_of(self.y),
        }
    }

    // The point of two patterns.
    pub fn from_bits(at: Spot) -> Point
        ensures { result ≡ point_of at }
    {
        Two {
            x: float_of(at.x),
            y: float_of(at.y),
        }
    }
}

// What an order answers on floats, by patterns.
fn answer_bits(order: Order, at: Spot) -> Spot
    ensures { result ≡ spot_of (answered order (float at.x) (float at.y)) }
{
    let p = Point::from_bits(at);
    answer(order, p.x, p.y).to_bits()
}

// What the order of a number, as C gives it, answers: 0 keeps the bits, 1 shifts by c and f, any other places by the record.
pub fn answer_spot(number: u64, k: Record, at: Spot) -> Spot
    ensures { spot_is result ≡ paper.answered (paper.order_of number (record_is k)) (spot_is at) }
{
    match number {
        0 => at,
        1 => {
            let p = Placement::from_bits(k);
            answer_bits(Order::Shift(p.c, p.f), at)
        }
        _ => answer_bits(Order::Place(Placement::from_bits(k)), at),
    }
}
