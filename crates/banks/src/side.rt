// Where a number of two banks leads: to the left bank under the same number, or to the right bank under this one. (It is
// no `Option`, since neither side is missing.)
#[derive(Clone, Copy)]
pub enum Side {
    Left,
    Right(usize),
}
