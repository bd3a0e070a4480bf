//! The orders of a list.

/// Makes the next order of a list in lexicographic order. Returns `false` if this order is the last.
pub fn next_order(list: &mut [u8]) -> bool {
    let mut pivot = list.len();
    for place in 1..list.len() {
        if list[place - 1] < list[place] {
            pivot = place - 1;
        }
    }
    if pivot == list.len() {
        return false;
    }
    let mut other = pivot + 1;
    for place in pivot + 1..list.len() {
        if list[place] > list[pivot] {
            other = place;
        }
    }
    list.swap(pivot, other);
    list[pivot + 1..].reverse();
    true
}
