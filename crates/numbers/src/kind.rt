// The kinds of records, byte 0 of each.
ghost use Rattle.std.specs.Prelude.{◌≡◌};
ghost use Rattle.numbers.specs.Kinds.{Decodes};

use crate::refusal::Refusal;

#[derive(Clone, Copy, Debug, PartialEq, Eq, PartialOrd, Ord, Hash)]
pub enum Kind {
    Resistor = 1,
    Current = 2,
    Voltage = 3,
    Diode = 4,
    Isin = 5,
    Vsin = 6,
    Vpwl = 7,
    Capacitor = 8,
    Vcvs = 9,
    Vccs = 10,
    Inductor = 11,
}

impl Kind {
    ghost use Rattle.numbers.specs.Kinds.{number_of};

    // The kind's byte.
    pub fn number(self) -> u8
        ensures { result ≡ number_of self }
    {
        self as u8
    }
}

// A byte that is no kind's is refused by 6.
impl TryFrom<u8> for Kind {
    type Error = Refusal;

    ghost try_from_gives = { Decodes };

    fn try_from(byte: u8) -> Result<Self, Refusal> {
        match byte {
            RESISTOR => Ok(Kind::Resistor),
            CURRENT => Ok(Kind::Current),
            VOLTAGE => Ok(Kind::Voltage),
            DIODE => Ok(Kind::Diode),
            ISIN => Ok(Kind::Isin),
            VSIN => Ok(Kind::Vsin),
            VPWL => Ok(Kind::Vpwl),
            CAPACITOR => Ok(Kind::Capacitor),
            VCVS => Ok(Kind::Vcvs),
            VCCS => Ok(Kind::Vccs),
            INDUCTOR => Ok(Kind::Inductor),
            _ => Err(Refusal::Kind),
        }
    }
}

pub const RESISTOR: u8 = Kind::Resistor as u8;

pub const CURRENT: u8 = Kind::Current as u8;

pub const VOLTAGE: u8 = Kind::Voltage as u8;

pub const DIODE: u8 = Kind::Diode as u8;

pub const ISIN: u8 = Kind::Isin as u8;

pub const VSIN: u8 = Kind::Vsin as u8;

pub const VPWL: u8 = Kind::Vpwl as u8;

pub const CAPACITOR: u8 = Kind::Capacitor as u8;

pub const VCVS: u8 = Kind::Vcvs as u8;

pub const VCCS: u8 = Kind::Vccs as u8;

pub const INDUCTOR: u8 = Kind::Inductor as u8;
