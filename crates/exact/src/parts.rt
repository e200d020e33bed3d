// A finite float as digits at a place, and the product of two added to a row.
ghost use Rattle.std.specs.Prelude.{◌≡◌, ◌+◌, ◌*◌, ◌^◌, ◌<◌, T};
ghost use Rattle.std.specs.Float.Ieee.Scale.{finite};
ghost use Rattle.num.specs.Floats.{sign};
ghost use Rattle.exact.specs.Exact.{units};
ghost use Rattle.exact.specs.Rows.{Spacious, Sum, Small};

// 2^63, the sign's bit.
const SIGN: u64 = 1 << 63;

// 2^52, the digit that leads every float but the subnormal.
const LEADING: u64 = 1 << 52;

// A finite float's digits, the place of the lowest in units of 2^-1074, and whether it stands with a minus.
#[derive(Clone, Copy, Debug, PartialEq, Eq)]
pub struct Parts {
    pub digits: u64,
    pub place: usize,
    pub minus: bool,
}

pub fn parts_of(x: f64) -> Parts
    requires { T (finite x) }
    ensures { (result.digits * 2 ^ result.place ≡ units x) × Small result.digits result.place × (result.minus ≡ sign x) }
{
    let b = f64::to_bits(x);
    let field = b % SIGN / LEADING;
    let low = b % LEADING;
    let minus = SIGN <= b;
    if field == 0 {
        return Parts {
            digits: low,
            place: 0,
            minus,
        };
    }
    Parts {
        digits: LEADING + low,
        place: (field - 1) as usize,
        minus,
    }
}

// Adds the size of the product of two floats to limbs that have room for it.
pub fn add_size(limbs: &mut [u64], x: Parts, y: Parts)
    requires { Small x.digits x.place × Small y.digits y.place × Spacious limbs.old }
    ensures { Sum limbs.old (x.digits * 2 ^ x.place * (y.digits * 2 ^ y.place)) limbs.new }
{
    super::limbs::add_product(limbs, x.place + y.place, x.digits, y.digits);
}
