//! Laws of what is found with no modifier before it.
ghost use Rattle.rbg_flat.specs.Chains.{ChainLaw};

/// What is met by leaps, and by actions that hold where these end, is what runs without a modifier lead to.
pub fn leaps_lead_to_candidates()
    ensures { ChainLaw }
{}
