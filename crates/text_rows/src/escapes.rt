// Both calls with ample memory.
use html_out::{put_attr, put_text};
use sig_base::NoMemory;

#[test]
fn a_text_is_escaped(rt: HostRuntime) -> Result<(), NoMemory> {
    let mut out = Vec::new(rt.alloc());
    put_text(&mut out, "a\"<&\u{a0}>'b")?;
    assert_eq!(rt; out.as_slice(), b"a\"&lt;&amp;&nbsp;&gt;'b".as_slice());
    Ok(())
}

#[test]
fn an_attribute_has_quotes_around_its_value(rt: HostRuntime) -> Result<(), NoMemory> {
    let mut out = Vec::new(rt.alloc());
    put_attr(&mut out, "title", "\"<&\u{a0}>")?;
    assert_eq!(rt;
        out.as_slice(),
        b" title=\"&quot;&lt;&amp;&nbsp;&gt;\"".as_slice()
    );
    Ok(())
}
