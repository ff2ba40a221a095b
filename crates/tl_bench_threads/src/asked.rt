// What the command line asks for.

/// What is to be measured.
#[derive(Clone, Copy, Debug)]
pub struct Asked<'w> {
    /// The path of the procedure's container.
    pub container: &'w str,
    /// How many threads run a batch; 0 to drive a core without an engine.
    pub workers: usize,
    /// How many nodes the tree has.
    pub nodes: u32,
    /// How many nodes a chain has, at least 1.
    pub chain: u32,
    /// How many engines or cores are made.
    pub engines: u32,
}

impl Asked<'_> {
    /// The arguments in their order; None if one is missing or isn't a number.
    pub fn new(words: &[String]) -> Option<Asked<'_>> {
        let [container, workers, nodes, chain, engines] = words else {
            return None;
        };
        Some(Asked {
            container: container.as_str(),
            workers: workers.parse().ok()?,
            nodes: nodes.parse().ok()?,
            chain: chain.parse().ok()?,
            engines: engines.parse().ok()?,
        })
    }
}
