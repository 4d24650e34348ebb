ghost use Rattle.std.specs.Prelude.{◌≡◌};
ghost use Rattle.worked.specs.Cases.{given, expected};

// Does nothing. Its contract is that the definitions give what the table of worked cases expects. (The orders of requests
// stand on `protocol::examples::stores_in_order` too, beside the runs; here they stand among the cases that a reader looks up,
// so both stay.)
pub fn cases_hold()
    ensures { given ≡ expected }
{}
