// A seat's place in the sheets: the seat, counted from 0, where its lines start, and how many they are, one for each
// provider.
#[derive(Clone, Copy)]
pub struct SeatPlace {
    pub seat: usize,
    pub start: usize,
    pub providers: usize,
}

// A line's place: that of its seat, and the provider, counted from 0.
#[derive(Clone, Copy)]
pub struct Place {
    pub seat: SeatPlace,
    pub provider: usize,
}
