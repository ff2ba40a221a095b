// What the numbers of faults mean. Written by `tools/faults` from `docs/use/faults.md`.

mod calls;
mod roles;
mod runs;
mod stores;
mod texts;

/// What is known of a fault's number.
#[derive(Clone, Copy)]
pub struct Meaning {
    /// What follows the number in a fault, as `, position`.
    pub parts: &'static str,
    /// The fault's name.
    pub name: &'static str,
    /// When it comes.
    pub when: &'static str,
    /// What to do then.
    pub advice: &'static str,
}

/// What is known of the number, if a fault has it.
pub fn meaning_of(number: u16) -> Option<Meaning> {
    match number {
        0..=204 => texts::from_31_to_204(number),
        205..=275 => texts::from_205_to_275(number),
        276..=289 => texts::from_276_to_289(number),
        290..=299 => texts::from_290_to_299(number),
        300..=406 => calls::from_301_to_406(number),
        407..=612 => calls::from_407_to_612(number),
        613..=690 => calls::from_613_to_690(number),
        691..=790 => runs::from_701_to_790(number),
        791..=990 => runs::from_801_to_990(number),
        991..=1014 => stores::from_1001_to_1014(number),
        1015..=1090 => stores::from_1015_to_1090(number),
        1091..=1101 => roles::from_1101_to_1101(number),
        _ => None,
    }
}
