use blocks::block::Block;

// A sink's first refusal: its number, and the count of lines made at that line, the line itself counted.
#[derive(Clone, Copy, PartialEq, Eq, Debug)]
pub struct FirstRefusal {
    pub number: u32,
    pub line: u32,
}

// The verdict of a search that was carried out.
#[derive(Clone, Copy)]
pub struct Verdict {
    // the region found, every profile of which meets every rule; none where no profile meets them all
    pub found: Option<Block>,
    // the count of lines made, stopping at 4,294,967,295
    pub lines: u32,
    pub refused: Option<FirstRefusal>,
}
