//! The sheets that are measured.
use std::alloc::{AllocError, Global};

/// A recursion that goes as deep as `lets`, each time under one let more, and at the bottom begins another one, which never ends:
/// let rec loop x = loop x in let rec grow x = (match x with zero: loop unit, successor of x: let y = grow x in val y + 2) in grow lets.
pub(crate) fn growing(heap: Global, lets: u16) -> Result<String, AllocError> {
    format!(in heap;
        "effect op takes gives\n\ninstance effect\n\ntype kind a b d e\n4 4 2 1 0 0\n5 4 1 1 0 0\n\npart kind a b type dirt\n0 17 4 0 1 0\n1 13 0 0 1 0\n2 0 0 0 4 0\n3 0 1 0 2 0\n4 17 5 0 1 0\n5 11 0 0 1 0\n6 0 1 0 1 0\n7 13 0 0 1 0\n8 0 2 0 4 0\n9 4 0 0 2 0\n10 16 0 0 1 0\n11 13 0 0 1 0\n12 0 1 0 5 0\n13 0 0 0 1 0\n14 14 0 0 1 0\n15 3 0 0 1 0\n16 3 0 0 1 0\n17 0 0 0 1 0\n18 13 0 0 1 0\n19 0 0 0 5 0\n20 2 {lets} 0 1 0\n\n"
    )
}

/// Two hundred and fifty cuts one after another, of four parts each, and a val of unit.
pub(crate) fn cuts(heap: Global) -> Result<String, AllocError> {
    let mut rows = String::new(heap);
    for cut in 0u32..250 {
        let call = 4 * cut;
        let instance = call + 1;
        let successor = call + 2;
        let numeral = call + 3;
        write!(
            rows,
            "{call} 15 0 1 2 2\n{instance} 5 0 0 4 0\n{successor} 3 0 0 1 0\n{numeral} 2 {cut} 0 1 0\n"
        )?;
    }
    format!(in heap;
        "effect op takes gives\n0 0 1 2\n0 1 1 2\n0 2 2 1\n\ninstance effect\n0 0\n\ntype kind a b d e\n4 5 0 1 0 0\n\npart kind a b type dirt\n{rows}1000 14 0 0 2 2\n1001 4 0 0 2 0\n\n"
    )
}
