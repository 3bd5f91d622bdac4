//! The expected texts on C17, made from the table of its faults by a plain simulator of one fault
//! and one test at a time. It shares nothing with this simulator.

/// The report of C17, with a line for each fault, under 64 tests of ones and then one of zeros.
/// Ones detect 14 of the 34 faults, and zeros 5 more.
pub(crate) const REPORT: &[u8] = b"\
    stem G1 sa0 0\n\
    stem G1 sa1 none\n\
    stem G2 sa0 none\n\
    stem G2 sa1 64\n\
    stem G3 sa0 0\n\
    stem G3 sa1 none\n\
    pin G10 2 sa0 0\n\
    pin G10 2 sa1 none\n\
    pin G11 1 sa0 0\n\
    pin G11 1 sa1 none\n\
    stem G6 sa0 0\n\
    stem G6 sa1 none\n\
    stem G7 sa0 none\n\
    stem G7 sa1 64\n\
    stem G10 sa0 64\n\
    stem G10 sa1 0\n\
    stem G11 sa0 none\n\
    stem G11 sa1 0\n\
    pin G16 2 sa0 none\n\
    pin G16 2 sa1 0\n\
    pin G19 1 sa0 none\n\
    pin G19 1 sa1 0\n\
    stem G16 sa0 0\n\
    stem G16 sa1 none\n\
    pin G22 2 sa0 64\n\
    pin G22 2 sa1 none\n\
    pin G23 1 sa0 0\n\
    pin G23 1 sa1 none\n\
    stem G19 sa0 0\n\
    stem G19 sa1 none\n\
    stem G22 sa0 0\n\
    stem G22 sa1 64\n\
    stem G23 sa0 none\n\
    stem G23 sa1 0\n\
    19 of 34 (55.88%)\n\
    ";

/// The listing of C17.
pub(crate) const LISTING: &[u8] = b"\
    stem G1 sa0 class 8\n\
    stem G1 sa1 class 0\n\
    stem G2 sa0 class 14\n\
    stem G2 sa1 class 1\n\
    stem G3 sa0 class 2\n\
    stem G3 sa1 class 3\n\
    pin G10 2 sa0 class 8\n\
    pin G10 2 sa1 class 4\n\
    pin G11 1 sa0 class 10\n\
    pin G11 1 sa1 class 5\n\
    stem G6 sa0 class 10\n\
    stem G6 sa1 class 6\n\
    stem G7 sa0 class 17\n\
    stem G7 sa1 class 7\n\
    stem G10 sa0 class 19\n\
    stem G10 sa1 class 8\n\
    stem G11 sa0 class 9\n\
    stem G11 sa1 class 10\n\
    pin G16 2 sa0 class 14\n\
    pin G16 2 sa1 class 11\n\
    pin G19 1 sa0 class 17\n\
    pin G19 1 sa1 class 12\n\
    stem G16 sa0 class 13\n\
    stem G16 sa1 class 14\n\
    pin G22 2 sa0 class 19\n\
    pin G22 2 sa1 class 15\n\
    pin G23 1 sa0 class 21\n\
    pin G23 1 sa1 class 16\n\
    stem G19 sa0 class 21\n\
    stem G19 sa1 class 17\n\
    stem G22 sa0 class 18\n\
    stem G22 sa1 class 19\n\
    stem G23 sa0 class 20\n\
    stem G23 sa1 class 21\n\
    34 faults in 22 classes\n\
    ";
