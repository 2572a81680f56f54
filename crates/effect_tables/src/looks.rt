// Where something that is made is to stand in the store.
ghost use Rattle.std.specs.Prelude.{◌≡◌, true, false, IfOk, IsErrOf, IfErr};
ghost use Rattle.effect_tables.specs.Locations.{IsInside};
ghost use Rattle.effect_tables.specs.Owners.{living};
ghost use Rattle.effect_tables.specs.Placed.{is_open};
ghost use Rattle.sig_owner.specs.declared.errors.OwnFault.TheVariants as fault;

use crate::owner_rows::OwnerRows;
use sig_base::OwnerId;
use sig_owner::OwnFault;

/// Where something that is made inside an owner is to stand in the store; none at the top. It is refused where the owner is gone.
pub(crate) fn row_inside(
    owners: &OwnerRows,
    inside: Option<OwnerId>,
) -> Result<Option<OwnerId>, OwnFault>
    ensures inside { IfOk result (IsInside owners.now.items inside) }
    ensures open { IfOk result (λ row. is_open (living 0 owners.now.items) inside ≡ true) }
    ensures gone { IsErrOf result fault.Gone → is_open (living 0 owners.now.items) inside ≡ false }
    ensures fault { IfErr result (λ e. e ≡ fault.Gone) }
{
    let Some(owner) = inside else {
        return Ok(None);
    };
    let Some(row) = owners.get(owner) else {
        return Err(OwnFault::Gone);
    };
    Ok(Some(row))
}

/// Whether something can be made there: at the top, or inside an owner that lives.
pub(crate) fn is_open(owners: &OwnerRows, inside: Option<OwnerId>) -> bool
    ensures { result ≡ is_open (living 0 owners.now.items) inside }
{
    let Some(owner) = inside else {
        return true;
    };
    owners.get(owner).is_some()
}
