// A call that is made twice in a row is refused the second time.

use crate::refusals::check_refused;
use records::call::Call;
use std::test::Fail;
use values::hold::Hold;
use values::refusal::Refusal;

#[test]
fn a_second_call_in_a_row_is_refused(rt: HostRuntime) -> Result<(), Fail> {
    let write = Call::BeginWrite(1, Hold::Free);
    let read = Call::BeginRead(1, true);
    let (post, land, fetch) = (Call::Post(1, 1), Call::Land(1, 1), Call::Fetch(1, 1));
    check_refused(&rt, &[write], write, Refusal::SeatBusy)?;
    check_refused(&rt, &[read], read, Refusal::SeatBusy)?;
    check_refused(&rt, &[write, post], post, Refusal::LineNotFree)?;
    check_refused(&rt, &[write, post, land], land, Refusal::LineNotSent)?;
    check_refused(&rt, &[write, post, land, fetch], fetch, Refusal::NoAnswer)?;
    check_refused(&rt, &[Call::Stop(1)], Call::Stop(1), Refusal::SeatStopped)?;
    check_refused(&rt, &[Call::Lose(1)], Call::Lose(1), Refusal::ProviderLost)
}
