// Bodies, and how they are written.

use crate::blocks::is_written;
use sig_base::NoMemory;

const SPACED: &str = "  set  a (b+1)
# none
cleanup set a  0
\tcleanup log untrack( c )
when  d
effect
rewire e=host 3(f,g)
end
rewire h = untrack(i)++\"x\"
end
log  d
dispose a
";

const CANONICAL: &str = "set a b + 1
cleanup set a 0
cleanup log untrack(c)
when d
effect
rewire e = host 3 ( f , g )
end
rewire h = untrack(i) ++ \"x\"
end
log d
dispose a
";

#[test]
fn a_body_is_written_with_one_blank_before_each_token(rt: HostRuntime) -> Result<(), NoMemory> {
    let alloc = rt.alloc();
    assert!(rt; is_written(alloc, SPACED.as_bytes(), CANONICAL.as_bytes())?);
    assert!(rt; is_written(alloc, CANONICAL.as_bytes(), CANONICAL.as_bytes())?);
    Ok(())
}
