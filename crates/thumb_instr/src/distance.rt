//! Branch distances as types that hold only what the encoding's field can hold, so that a branch out of reach can't be constructed.
ghost use Rattle.std.specs.Prelude.{◌≡◌, ◌<◌, ◌≤◌, ◌*◌, ◌^◌, ◌↔◌, IsSome, IfSome};
ghost use Rattle.thumb_instr.specs.Items.{bytes_of, IsDistance};

/// The distance of a branch in bytes, measured from its instruction's address + 4: an even number from -2 HALF to below 2 HALF.
/// The field is half the distance as the encoding holds it: in two's complement, modulo 2 HALF.
#[derive(Clone, Copy, Debug, PartialEq, Eq)]
pub struct Distance<const HALF: u32> {
    pub field: u32,
    pub ghost below: { field < 2 * HALF },
}

impl<const HALF: u32> Distance<HALF> {
    /// The distance that the encoding holds as this field.
    pub fn of(field: u32) -> Self
        requires { field < 2 * HALF }
        ensures { result.field ≡ field }
    {
        Distance { field }
    }

    /// The distance of this many bytes. None where it is odd or out of range.
    pub fn new(bytes: i32) -> Option<Self>
        requires { HALF ≤ 2 ^ 28 }
        ensures valid { IsSome result ↔ IsDistance HALF bytes }
        ensures value { IfSome result (λ d. bytes_of HALF d.field ≡ bytes) }
    {
        if bytes >= 0 {
            let forward = bytes as u32;
            if forward % 2 == 0 && forward < 2 * HALF {
                Some(Distance { field: forward / 2 })
            } else {
                None
            }
        } else {
            let backward = (-(bytes + 1)) as u32;
            if backward % 2 == 1 && backward < 2 * HALF {
                Some(Distance {
                    field: 2 * HALF - 1 - backward / 2,
                })
            } else {
                None
            }
        }
    }

    /// The distance in bytes.
    pub fn bytes(&self) -> i32
        requires { HALF ≤ 2 ^ 28 }
        ensures { result ≡ bytes_of HALF self.now.field }
    {
        if self.field < HALF {
            (self.field * 2) as i32
        } else {
            -(((2 * HALF - 1 - self.field) * 2 + 1) as i32) - 1
        }
    }
}

/// The distance of a conditional branch: -256 to 254 bytes.
pub type Near = Distance<128>;

/// The distance of a branch: -2048 to 2046 bytes.
pub type Far = Distance<1024>;

/// The distance of a call: -16777216 to 16777214 bytes.
pub type Farthest = Distance<8388608>;
