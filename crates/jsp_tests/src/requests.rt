//! What is read as a request and what is refused, where that is JSON's to say, and that each
//! operation and each length of payload is read where there is memory.
use jsp_wire::{Ask, Asked, Scratch, Version, WireFault, read_ask, read_ask_in, read_ask_with};
use std::test::Fail;

// Whether a payload is read, and its id, or its refusal and the refusal's id.
fn shows(rt: &HostRuntime, version: Version, payload: &[u8]) -> Result<String, Fail> {
    let alloc = rt.alloc();
    let read = match version {
        Version::One => read_ask(alloc, payload),
        Version::Two => read_ask_in(alloc, version, payload),
    };
    match read {
        Ok(asked) => Ok(format!(in alloc; "{} read", asked.id())?),
        Err(WireFault::BadRequest { id: Some(id) }) => Ok(format!(in alloc; "{id} refused 2")?),
        Err(WireFault::BadRequest { id: None }) => Ok(String::from_str(alloc, "refused 2")?),
        Err(WireFault::BadJson) => Ok(String::from_str(alloc, "refused 1")?),
        Err(WireFault::NoMemory) => Err(Fail::new("no memory")),
    }
}

#[test]
fn odd_json(rt: HostRuntime) -> Result<(), Fail> {
    for (payload, wanted) in [
        ("", "refused 1"),
        ("\u{feff}{\"id\":5,\"op\":\"bye\"}", "refused 1"),
        (r#"{'id':5,"op":"bye"}"#, "refused 1"),
        (r#"{"id":5,"op":"bye"} x"#, "refused 1"),
        (r#"{"id":05,"op":"bye"}"#, "refused 1"),
        (r#"{"id":5,"op":"bye","n":1e999}"#, "refused 1"),
        (" {\"op\":\t\"b\\u0079e\",\r\n\"id\":5}\n", "5 read"),
        (r#"{"id":5,"id":6,"op":"bye"}"#, "6 read"),
        (
            r#"{"id":9223372036854775807,"op":"bye"}"#,
            "9223372036854775807 read",
        ),
        (r#"{"id":9223372036854775808,"op":"bye"}"#, "refused 2"),
        (r#"{"id":-0,"op":"bye"}"#, "refused 2"),
        (r#"{"id":5.0,"op":"bye"}"#, "refused 2"),
        (r#"{"id":5,"op":"cancel","lease":-0}"#, "5 refused 2"),
        (r#"{"id":5,"op":"cancel","lease":7e0}"#, "5 refused 2"),
        (
            r#"{"id":5,"op":"cancel","lease":-9223372036854775809}"#,
            "5 refused 2",
        ),
        (
            r#"{"id":5,"op":"cancel","lease":-9223372036854775808}"#,
            "5 read",
        ),
    ] {
        assert_eq!(rt;
            shows(&rt, Version::One, payload.as_bytes())?.as_str(),
            wanted,
            "{payload}"
        );
    }
    let no_text = b"{\"id\":5,\"op\":\"\xff\"}";
    assert_eq!(rt; shows(&rt, Version::One, no_text)?.as_str(), "refused 1");
    Ok(())
}

// The bytes, so many times each.
fn repeated(rt: &HostRuntime, bytes: &[u8], count: usize) -> Result<Vec<u8>, Fail> {
    let mut text = Vec::new(rt.alloc());
    for byte in bytes {
        for _ in 0..count {
            text.push(*byte)?;
        }
    }
    Ok(text)
}

#[test]
fn deep_json_and_long_numbers(rt: HostRuntime) -> Result<(), Fail> {
    for (bytes, count, wanted) in [
        ("[]", 127, "refused 2"),
        ("[]", 128, "refused 1"),
        ("9", 300, "refused 2"),
        ("9", 400, "refused 1"),
    ] {
        let payload = repeated(&rt, bytes.as_bytes(), count)?;
        assert_eq!(rt;
            shows(&rt, Version::One, payload.as_slice())?.as_str(),
            wanted,
            "{count}"
        );
    }
    Ok(())
}

#[test]
fn each_operation_where_there_is_memory(rt: HostRuntime) -> Result<(), Fail> {
    for payload in [
        r#"{"id":5,"op":"declare","class":"J","parent":"K","fields":{"k":"int"}}"#,
        r#"{"id":5,"op":"write","space":"a","entry":{"class":"J","fields":{"k":"x"}},"lease":1,"txn":3}"#,
        r#"{"id":5,"op":"read","space":"a","template":null,"timeout":1,"txn":3}"#,
        r#"{"id":5,"op":"read_if","space":"a","template":null,"timeout":1}"#,
        r#"{"id":5,"op":"take","space":"a","template":{"class":"J","fields":{"k":1}},"timeout":-1}"#,
        r#"{"id":5,"op":"take_if","space":"a","template":null,"timeout":0,"txn":null}"#,
        r#"{"id":5,"op":"notify","space":"a","template":null,"lease":1,"handback":"h","txn":3}"#,
        r#"{"id":5,"op":"renew","lease":3,"ms":-1}"#,
        r#"{"id":5,"op":"cancel","lease":3}"#,
        r#"{"id":5,"op":"renew_all","leases":[[3,1],[4,-1]]}"#,
        r#"{"id":5,"op":"cancel_all","leases":[3,4]}"#,
        r#"{"id":5,"op":"txn","lease":1}"#,
        r#"{"id":5,"op":"commit","txn":3}"#,
        r#"{"id":5,"op":"abort","txn":3}"#,
        r#"{"id":5,"op":"state","txn":3}"#,
        r#"{"id":5,"op":"reset","space":"a"}"#,
        r#"{"id":5,"op":"spaces"}"#,
        r#"{"id":5,"op":"bye"}"#,
        r#"{"id":5,"op":"hello","version":1}"#,
        r#"{"id":5,"op":"write_all","space":"a","entries":[{"class":"J","fields":{"k":"x"}}],"lease":1,"txn":3}"#,
        r#"{"id":5,"op":"take_many","space":"a","templates":[null],"most":1,"timeout":1,"txn":3}"#,
        r#"{"id":5,"op":"contents","space":"a","template":null,"lease":1,"txn":3}"#,
        r#"{"id":5,"op":"next","set":3,"most":16}"#,
        r#"{"id":5,"op":"close_set","set":3}"#,
    ] {
        assert_eq!(rt;
            shows(&rt, Version::Two, payload.as_bytes())?.as_str(),
            "5 read",
            "{payload}"
        );
    }
    Ok(())
}

// Whether it is a reset of the space of this name.
fn resets(read: &Result<Asked, WireFault>, name: &str) -> bool {
    let Ok(asked) = read else {
        return false;
    };
    match asked.ask() {
        Ask::Reset { space } => space.is(name),
        _ => false,
    }
}

// Lengths about that of the longest payload for which a scratch space is kept, 4,096 bytes, of
// which 34 aren't letters of the name, and a short one behind each long one.
#[test]
fn long_and_short_payloads_in_a_scratch_space_that_is_kept(rt: HostRuntime) -> Result<(), Fail> {
    let alloc = rt.alloc();
    let mut scratch = Scratch::new(alloc);
    for count in [3, 4061, 4062, 4063, 3, 60_000, 3] {
        let mut letters = String::new(alloc);
        for _ in 0..count {
            letters.push('x')?;
        }
        // An escape, so that the name is written into the scratch space.
        let name = format!(in alloc; "\n{letters}")?;
        let text = format!(in alloc; r#"{{"id":5,"op":"reset","space":"\n{letters}"}}"#)?;
        let payload = text.as_bytes();
        let kept = read_ask_with(alloc, Version::One, payload, &mut scratch);
        assert!(rt; resets(&kept, &name), "{count}");
        let alone = read_ask_in(alloc, Version::One, payload);
        assert!(rt; resets(&alone, &name), "{count}, alone");
    }
    Ok(())
}
