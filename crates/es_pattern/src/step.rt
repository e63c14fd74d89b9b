// The steps of a program that walks over a text.

// The way that a walk goes over a text.
#[derive(Clone, Copy, Debug, PartialEq, Eq)]
pub(crate) enum Direction {
    // From the text's start to its end.
    Forward,
    // From its end to its start.
    Backward,
}

// One step. Steps count from the one that they stand at, so a part of a program can be moved.
#[derive(Clone, Copy, Debug)]
pub(crate) enum Step {
    // Goes on over a part that the piece of this number spans.
    Pass(usize),
    // Goes on with the next step, and with the one so many further.
    Fork(usize),
    // Goes on with the step so many further.
    Jump(usize),
    // Goes on with the step so many back.
    Back(usize),
}
