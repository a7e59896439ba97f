//! What a handle answers to all its questions, asked at once and compared at once.

/// The answers of a handle, each under its question's name.
#[derive(Drop, Clone, Copy, Debug, PartialEq, Eq)]
pub struct AllAnswers {
    pub len: usize,
    pub is_empty: bool,
    pub is_full: bool,
    pub is_bounded: bool,
    pub capacity: usize,
    pub receiver_count: u32,
    pub sender_count: u32,
    pub is_closed: bool,
    pub is_disconnected: bool,
}

/// Asks a handle, of whichever kind, all questions that each kind has.
macro_rules! answers {
    ($rt:expr, $handle:expr) => {
        $crate::tests::asked::AllAnswers {
            len: $handle.len($rt),
            is_empty: $handle.is_empty($rt),
            is_full: $handle.is_full($rt),
            is_bounded: $handle.is_bounded($rt),
            capacity: $handle.capacity($rt),
            receiver_count: $handle.receiver_count($rt),
            sender_count: $handle.sender_count($rt),
            is_closed: $handle.is_closed($rt),
            is_disconnected: $handle.is_disconnected($rt),
        }
    };
}

pub(crate) use answers;
