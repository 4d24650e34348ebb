// Where a line stands in its seat's phase. A line is what one seat has to do with one provider.
#[derive(Clone, Copy, PartialEq, Eq, Debug)]
pub enum Stage {
    // list the provider's keys
    List,
    // storing: remove the next of the older temporary keys
    RemoveOlder,
    // storing: put the version under the standing key
    PutStanding,
    // storing: put it under its own key
    PutOwn,
    // storing: remove the largest key that was listed
    RemoveLargest,
    // gathering: get the largest key that was listed
    GetLargest,
    // gathering: get the standing key
    GetStanding,
}
