// Facts and questions: pairs of 32-bit numbers. What the two numbers mean is for each structure to say.

// What a structure can be told, and later be told no more.
#[derive(Clone, Copy, PartialEq, Eq, Debug)]
pub struct Fact {
    pub first: u32,
    pub second: u32,
}

// What a structure can be asked.
#[derive(Clone, Copy, PartialEq, Eq, Debug)]
pub struct Question {
    pub first: u32,
    pub second: u32,
}
