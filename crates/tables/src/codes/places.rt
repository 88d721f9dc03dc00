// Names, members of families, and places.
ghost use Rattle.std.specs.Prelude.{◌≡◌};
ghost use Rattle.tables.specs.Codes.{name_of, place_of, place_kind, place_code, member_of, member_code};
ghost use Rattle.tables.specs.Decoded.{Decodes};

use crate::code::{Cases, Coded};
use crate::codes::cases::Kind;
use crate::codes::unknown::UnknownCode;
use crate::family::{Family, Member};
use crate::limits::{INPUT_CELLS, LAST_FLAG, LAST_NAME, OUTPUT_CELLS};
use crate::place::Place;
use crate::statement::Name;

impl TryFrom<u16> for Name {
    type Error = UnknownCode;

    ghost try_from_gives = { λ code r. Decodes (name_of code) r };

    fn try_from(code: u16) -> Result<Name, UnknownCode> {
        if code >= 1 && code <= LAST_NAME as u16 {
            Ok(Name(code as u8))
        } else {
            Err(UnknownCode)
        }
    }
}

// The family's code is the high byte, the member's number the low one.
impl TryFrom<u16> for Member {
    type Error = UnknownCode;

    ghost try_from_gives = { λ code r. Decodes (member_of code) r };

    fn try_from(code: u16) -> Result<Member, UnknownCode> {
        // With `to_be_bytes` the proof does not close.
        let family = Family::from_code((code / 256) as u8)?;
        let number = (code % 256) as u8;
        if family.has_member(number) {
            Ok(Member { family, number })
        } else {
            Err(UnknownCode)
        }
    }
}

impl From<Member> for u16 {
    ghost from_gives = { λ member code. code ≡ member_code member };

    fn from(member: Member) -> u16 {
        u16::from_be_bytes([member.family.code(), member.number])
    }
}

// The kind is that of a place, and has the code.
impl TryFrom<(Kind, u16)> for Place {
    type Error = UnknownCode;

    ghost try_from_gives = { λ codes r. Decodes (place_of codes.0 codes.1) r };

    fn try_from(codes: (Kind, u16)) -> Result<Place, UnknownCode> {
        match codes {
            (Kind::Cib, code) if code < INPUT_CELLS => Ok(Place::InputCell(code)),
            (Kind::Cob, code) if code < OUTPUT_CELLS => Ok(Place::OutputCell(code)),
            (Kind::LogicFlag, code) if code >= 1 && code <= LAST_FLAG as u16 => Ok(Place::Flag(
                code as u8,
            )),
            _ => Err(UnknownCode),
        }
    }
}

// The two parts of a place's line: neither alone is a conversion.
impl Place {
    /// What kind of line names it.
    pub fn kind(self) -> Kind
        ensures { result ≡ place_kind self }
    {
        match self {
            Place::InputCell(_) => Kind::Cib,
            Place::OutputCell(_) => Kind::Cob,
            Place::Flag(_) => Kind::LogicFlag,
        }
    }

    /// Its code among those of its kind.
    pub fn code(self) -> u16
        ensures { result ≡ place_code self }
    {
        match self {
            Place::InputCell(code) | Place::OutputCell(code) => code,
            Place::Flag(flag) => u16::from(flag),
        }
    }
}
