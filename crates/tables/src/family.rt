// Families: cells that an engineer names by what they are and a member's number.
ghost use Rattle.std.specs.Prelude.{◌≡◌};
ghost use Rattle.tables.specs.Families.{in_outputs, in_inputs, in_ring_inputs, layout_of, may_name};

use crate::place::Buffer;

/// The thirty families.
#[derive(Clone, Copy)]
pub enum Family {
    PhaseGreen = 1,
    PhaseYellow = 2,
    PhaseRed = 3,
    PhaseWalk = 4,
    PhasePedClear = 5,
    PhaseDontWalk = 6,
    OverlapGreen = 7,
    OverlapYellow = 8,
    OverlapRed = 9,
    LoadSwitchGreen = 10,
    LoadSwitchYellow = 11,
    LoadSwitchRed = 12,
    PhaseTiming = 13,
    VehicleCheck = 14,
    PedCheck = 15,
    VehicleDetector = 16,
    PedDetector = 17,
    Hold = 18,
    Omit = 19,
    PedOmit = 20,
    InhibitMax = 21,
    MaxTwo = 22,
    MaxThree = 23,
    OmitRedClear = 24,
    RedRest = 25,
    PedRecycle = 26,
    ForceOff = 27,
    StopTime = 28,
    Alarm = 29,
    PreemptCall = 30,
}

/// A family's cells: which buffer they lie in, the code of member 1, how many members there are and how far apart, and
/// whether member 0 names them all.
#[derive(Clone, Copy)]
pub struct Layout {
    pub buffer: Buffer,
    pub first: u16,
    pub members: u8,
    pub step: u16,
    pub whole: bool,
}

// The 0 is a document's own number for all members, and stays a number as those of members are.
/// A member of a family, or all of them where the number is 0.
#[derive(Clone, Copy)]
pub struct Member {
    pub family: Family,
    pub number: u8,
}

// Three layouts by name: one function of a buffer and three numbers would say less in each line of `layout`.
impl Layout {
    // Sixteen output cells in a row.
    fn outputs(first: u16) -> Layout
        ensures { result ≡ in_outputs first }
    {
        Layout {
            buffer: Buffer::Output,
            first,
            members: 16,
            step: 1,
            whole: true,
        }
    }

    // Input cells in a row.
    fn inputs(first: u16, members: u8) -> Layout
        ensures { result ≡ in_inputs first members }
    {
        Layout {
            buffer: Buffer::Input,
            first,
            members,
            step: 1,
            whole: true,
        }
    }

    // One input cell for each of the four rings, eight apart.
    fn ring_inputs(first: u16) -> Layout
        ensures { result ≡ in_ring_inputs first }
    {
        Layout {
            buffer: Buffer::Input,
            first,
            members: 4,
            step: 8,
            whole: true,
        }
    }
}

impl Family {
    /// Where the family's cells lie.
    pub fn layout(self) -> Layout
        ensures { result ≡ layout_of self }
    {
        match self {
            Family::PhaseGreen => Layout::outputs(0),
            Family::PhaseYellow => Layout::outputs(16),
            Family::PhaseRed => Layout::outputs(32),
            Family::PhaseWalk => Layout::outputs(48),
            Family::PhasePedClear => Layout::outputs(64),
            Family::PhaseDontWalk => Layout::outputs(80),
            Family::OverlapGreen => Layout::outputs(96),
            Family::OverlapYellow => Layout::outputs(112),
            Family::OverlapRed => Layout::outputs(128),
            Family::LoadSwitchGreen => Layout::outputs(160),
            Family::LoadSwitchYellow => Layout::outputs(176),
            Family::LoadSwitchRed => Layout::outputs(192),
            Family::PhaseTiming => Layout::outputs(320),
            Family::VehicleCheck => Layout::outputs(352),
            Family::PedCheck => Layout::outputs(368),
            Family::VehicleDetector => Layout {
                whole: false,
                ..Layout::inputs(0, 64)
            },
            Family::PedDetector => Layout::inputs(64, 16),
            Family::Hold => Layout::inputs(80, 16),
            Family::Omit => Layout::inputs(96, 16),
            Family::PedOmit => Layout::inputs(112, 16),
            Family::InhibitMax => Layout::ring_inputs(128),
            Family::MaxTwo => Layout::ring_inputs(129),
            Family::MaxThree => Layout::ring_inputs(130),
            Family::OmitRedClear => Layout::ring_inputs(131),
            Family::RedRest => Layout::ring_inputs(132),
            Family::PedRecycle => Layout::ring_inputs(133),
            Family::ForceOff => Layout::ring_inputs(134),
            Family::StopTime => Layout::ring_inputs(135),
            Family::Alarm => Layout::inputs(208, 16),
            Family::PreemptCall => Layout::inputs(288, 10),
        }
    }

    /// Whether a line may name this member: 1 to the last, and 0 unless the family is the vehicle detectors.
    pub fn has_member(self, number: u8) -> bool
        ensures { result ≡ may_name self number }
    {
        let layout = self.layout();
        number <= layout.members && (number > 0 || layout.whole)
    }
}
