// The fields of lists.
ghost use Rattle.std.specs.Prelude.{◌≡◌};
ghost use Rattle.std.specs.List.{list_all};
ghost use Rattle.live_cmd.specs.Grammar.{are_fields, is_field};

use line_forms::are_distinct;
use sig_base::Name;

/// Whether a name can be that of a field: the key has another place.
pub fn is_field(name: &Name) -> bool
    ensures { result ≡ is_field name.now }
{
    name.as_str() != "key"
}

// Whether each of these can be the name of a field.
fn each_is_field(names: &[Name]) -> bool
    ensures { result ≡ list_all is_field names.now }
{
    names.iter().all(|name| is_field(name))
}

/// Whether names can be those of a list's fields: they are distinct, and none is `key`, which has another place.
pub fn are_fields(names: &[Name]) -> bool
    ensures { result ≡ are_fields names.now }
{
    each_is_field(names) && are_distinct(names)
}
