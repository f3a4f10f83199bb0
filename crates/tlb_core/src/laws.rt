//! What holds of every list of events with their answers.
ghost use Rattle.tlb_core.specs.Histories.{History};
ghost use Rattle.tlb_core.specs.Answers.{Sizes, IsRun, ReachesNoneAnew, CachesNoneFree};

/// No processor reaches a frame that was given anew since its cache was filled.
pub fn no_processor_reaches_a_frame_given_anew()
    ensures reaches { (sizes : Sizes) (h : History) → IsRun sizes h → ReachesNoneAnew h }
    ensures caches { (sizes : Sizes) (h : History) → IsRun sizes h → CachesNoneFree sizes h }
{}
