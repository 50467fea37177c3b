// What the words of hazards mean.

use mlk_hazards::Hazard;

/// What a hazard is.
#[derive(Clone, Copy, Drop)]
pub(crate) struct HazardMeaning {
    pub(crate) hazard: Hazard,
    /// what is there
    pub(crate) is: &'static str,
}

/// All hazards.
pub(crate) const HAZARD_MEANINGS: [HazardMeaning; 7] = [
    HazardMeaning {
        hazard: Hazard::SkippedCall,
        is: "an extrinsic call right of a logical operator: a system may skip it",
    },
    HazardMeaning {
        hazard: Hazard::PerhapsOneName,
        is: "two names of one LOCK argument without sign that may be one: a system may count them once",
    },
    HazardMeaning {
        hazard: Hazard::RepeatedName,
        is: "a name that is repeated in one LOCK argument: a system may count it once",
    },
    HazardMeaning {
        hazard: Hazard::BlockBeforeFormals,
        is: "a block that ends directly before a line with a formal list: a system may end it with an error",
    },
    HazardMeaning {
        hazard: Hazard::LongLine,
        is: "a line of more than 8,192 bytes: a system may run the rest as a line of its own",
    },
    HazardMeaning {
        hazard: Hazard::LabelsAlike,
        is: "two labels with the same first 31 characters: a system may take one for the other",
    },
    HazardMeaning {
        hazard: Hazard::StaleWrite,
        is: "a value that was read before the lock for the write was acquired: another job's update may be lost",
    },
];

/// What a hazard is.
pub(crate) fn hazard_is_what(hazard: Hazard) -> &'static str {
    match HAZARD_MEANINGS
        .iter()
        .find(|meaning| meaning.hazard == hazard)
    {
        Some(meaning) => meaning.is,
        None => "",
    }
}
