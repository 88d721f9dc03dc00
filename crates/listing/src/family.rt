// What the families are called, in a test and in an action: fixed texts, as in `words`.
ghost use Rattle.std.specs.Prelude.{◌≡◌};
ghost use Rattle.listing.specs.Families.{family_tested, family_set};

use tables::family::Family;

/// A family as a test names it.
pub fn family_tested(family: Family) -> &'static str
    ensures { result.now ≡ family_tested family }
{
    match family {
        Family::PhaseGreen => "GREEN ON PHASE",
        Family::PhaseYellow => "YELLOW ON PHASE",
        Family::PhaseRed => "RED ON PHASE",
        Family::PhaseWalk => "WALK ON PHASE",
        Family::PhasePedClear => "PED CLEAR ON PHASE",
        Family::PhaseDontWalk => "DON'T WALK ON PHASE",
        Family::OverlapGreen => "OVERLAP GREEN",
        Family::OverlapYellow => "OVERLAP YELLOW",
        Family::OverlapRed => "OVERLAP RED",
        Family::LoadSwitchGreen => "LDSW GRN/WLK",
        Family::LoadSwitchYellow => "LDSW YEL/PCLR",
        Family::LoadSwitchRed => "LDSW RED/DW",
        Family::PhaseTiming => "PHASE TIMING",
        Family::VehicleCheck => "CHECK ON PHASE",
        Family::PedCheck => "PED CHECK ON PHASE",
        Family::VehicleDetector => "DETECTOR",
        Family::PedDetector => "PED DETECTOR",
        Family::Hold => "HOLD ON PHASE",
        Family::Omit => "OMIT ON PHASE",
        Family::PedOmit => "PED OMIT ON PHASE",
        Family::InhibitMax => "INHIBIT MAX RING",
        Family::MaxTwo => "MAX 2 RING",
        Family::MaxThree => "MAX 3 RING",
        Family::OmitRedClear => "OMIT RED CLR RING",
        Family::RedRest => "RED REST RING",
        Family::PedRecycle => "PED RECYCLE RING",
        Family::ForceOff => "FORCE OFF RING",
        Family::StopTime => "STOP TIME RING",
        Family::Alarm => "ALARM",
        Family::PreemptCall => "PREEMPT INPUT",
    }
}

/// A family as an action names it, behind SET.
pub fn family_set(family: Family) -> &'static str
    ensures { result.now ≡ family_set family }
{
    match family {
        Family::PhaseGreen => "PHASE GREEN",
        Family::PhaseYellow => "PHASE YELLOW",
        Family::PhaseRed => "PHASE RED",
        Family::PhaseWalk => "PHASE WALK",
        Family::PhasePedClear => "PHASE PED CLR",
        Family::PhaseDontWalk => "PHASE DON'T WALK",
        Family::OverlapGreen => "OVLP GREEN",
        Family::OverlapYellow => "OVLP YELLOW",
        Family::OverlapRed => "OVLP RED",
        Family::VehicleCheck => "PHASE CHECK",
        Family::PedCheck => "PHASE PED CHECK",
        Family::VehicleDetector => "VEH DET",
        Family::PedDetector => "PED DET",
        Family::Hold => "PHASE HOLD",
        Family::Omit => "PHASE OMIT",
        Family::PedOmit => "PHASE PED OMIT",
        // The others are called the same in both.
        _ => family_tested(family),
    }
}
