//! Worked circuits that tests and examples of several crates share.
#![tactic(auto)]

/// C17, the smallest of the ISCAS-85 benchmarks (Brglez and Fujiwara, 1985), as a bench file: six
/// NAND gates, five inputs and two outputs. It has 34 stuck-at faults in 22 classes.
pub const C17: &[u8] = b"\
    INPUT(G1)\n\
    INPUT(G2)\n\
    INPUT(G3)\n\
    INPUT(G6)\n\
    INPUT(G7)\n\
    OUTPUT(G22)\n\
    OUTPUT(G23)\n\
    G10 = NAND(G1, G3)\n\
    G11 = NAND(G3, G6)\n\
    G16 = NAND(G2, G11)\n\
    G19 = NAND(G11, G7)\n\
    G22 = NAND(G10, G16)\n\
    G23 = NAND(G16, G19)\n";

/// C17 as a `str`, for tables of texts: a constant can't be made from another by a call.
pub const C17_TEXT: &str = "\
    INPUT(G1)\n\
    INPUT(G2)\n\
    INPUT(G3)\n\
    INPUT(G6)\n\
    INPUT(G7)\n\
    OUTPUT(G22)\n\
    OUTPUT(G23)\n\
    G10 = NAND(G1, G3)\n\
    G11 = NAND(G3, G6)\n\
    G16 = NAND(G2, G11)\n\
    G19 = NAND(G11, G7)\n\
    G22 = NAND(G10, G16)\n\
    G23 = NAND(G16, G19)\n";
