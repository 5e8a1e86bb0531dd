//! The base text of the empty office, as given bytes. What the definitions make of an actor is in
//! `specs/WorkedTexts`.

use action_table::read_defs;
use office_types::{OfficeState, laws};
use snapshot_text::write_office;
use std::test::Fail;
use xs_data::Items;

#[test]
fn the_empty_office_has_its_base_text(rt: HostRuntime) -> Result<(), Fail> {
    let alloc = rt.alloc();
    let text = "{\"machines\":[],\"implementations\":{}}";
    let defs = read_defs(alloc, text.as_bytes())?;
    let state = OfficeState {
        actors: Items::new(alloc),
        timers: Items::new(alloc),
        names: Items::new(alloc),
        callers: Items::new(alloc),
        moment: 0,
        entries: 0,
        next_actor: 1,
        next_letter: 1,
        next_timer: 1,
    };
    laws::empty_office_is_valid();
    let base = write_office(alloc, &defs, &state, text.as_bytes())?;
    assert_eq!(rt; base.len(), 154);
    let expected =
        "{\"actors\":[],\"callers\":[],\"defs\":\"{\\\"machines\\\":[],\\\"implementations\\\":{}}\",\"entries\":0,\"moment\":0,\"nextActor\":1,\"nextLetter\":1,\"nextTimer\":1,\"timers\":[]}";
    assert_eq!(rt; base.as_slice(), expected.as_bytes());
    Ok(())
}
