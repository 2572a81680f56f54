// Formulas that are lent, one behind the other.
ghost use Rattle.std.specs.Prelude.{◌≡◌, ◌++◌, ◌∷◌, [], All, OnErr, OnOk};

use sig_base::NoMemory;
use sig_host::HostFormula;

/// Lends one more formula, at the place behind the others. It asks of its caller that none of them was asked yet.
///
/// # Errors
///
/// `NoMemory` where memory ran out: then those that were lent stay, and the one more is dropped.
pub fn lend(
    hosts: &mut Vec<Box<dyn HostFormula>>,
    one: Box<dyn HostFormula>,
) -> Result<(), NoMemory>
    requires unasked { All (λ h. asks h ≡ 0) hosts.old.items }
    requires never { asks one ≡ 0 }
    ensures items { OnOk result (hosts.new.items ≡ hosts.old.items ++ one ∷ []) }
    ensures unasked { OnOk result (All (λ h. asks h ≡ 0) hosts.new.items) }
    ensures err { OnErr result (hosts.new.items ≡ hosts.old.items) }
{
    hosts.push(one)?;
    Ok(())
}
