//! The members of an object, by their names.

ghost use Rattle.std.specs.Prelude.{◌≡◌, Ok, Err, MatchResult, map, option_map, is_some, bytes_eq};
ghost use Rattle.std.specs.List.{list_any};
ghost use Rattle.serde_json.specs.Find.{get_member};
ghost use Rattle.serde_json.specs.View.{view, members_view};
ghost use Rattle.camera_script.specs.Members as spec;
ghost use Rattle.camera_script.specs.Members.{exactly_named};

use crate::fault::LineFault;
use serde_json::{Map, Value};

/// The members of a JSON object, by their names.
pub(crate) type Object = Map<String, Value>;

/// Returns the value of the member of this name, if there is one.
pub(crate) fn member<'a>(object: &'a Object, name: &str) -> Option<&'a Value>
    ensures { option_map (λ value. view value.now) result
        ≡ get_member name.now (members_view object.now.entries) }
{
    object.get(name)
}

/// Returns whether there is a member of this name.
fn has(object: &Object, name: &str) -> bool
    ensures { result ≡ is_some (get_member name.now (members_view object.now.entries)) }
{
    member(object, name).is_some()
}

/// Returns an error where a required name isn't among the members, or a member has neither such a name nor an optional
/// one: a missing one comes before one that isn't known.
pub(crate) fn expect_names(
    object: &Object,
    required: &[&str],
    optional: &[&str],
) -> Result<(), LineFault>
    ensures { let members = members_view object.now.entries in
        let reading = exactly_named (map (λ name. name.now) required.now)
        (map (λ name. name.now) optional.now) members in
        MatchResult result (λ _. reading ≡ Ok members) (λ fault. reading ≡ Err fault) }
{
    if !has_each(object, required) {
        return Err(LineFault::MissingMember);
    }
    if !has_only(object, required, optional) {
        return Err(LineFault::UnknownMember);
    }
    Ok(())
}

/// Returns whether there is a member of each of these names.
fn has_each(object: &Object, names: &[&str]) -> bool
    ensures { result
        ≡ spec.has_each (map (λ name. name.now) names.now) (members_view object.now.entries) }
{
    names.iter().all(|name| has(object, name))
}

/// Returns whether each member has a required or an optional name.
fn has_only(object: &Object, required: &[&str], optional: &[&str]) -> bool
    ensures { result
        ≡ spec.has_only (map (λ name. name.now) required.now) (map (λ name. name.now) optional.now)
        (members_view object.now.entries) }
{
    object
        .keys()
        .all(|key| is_known(required, optional, key.as_str()))
}

/// Returns whether the name is a required or an optional one.
fn is_known(required: &[&str], optional: &[&str], name: &str) -> bool
    ensures { result
        ≡ spec.is_known (map (λ name. name.now) required.now) (map (λ name. name.now) optional.now)
        name.now }
{
    is_among(required, name) || is_among(optional, name)
}

/// Returns whether the name is one of these names.
fn is_among(names: &[&str], name: &str) -> bool
    ensures { result
        ≡ list_any (λ one. bytes_eq name.now one) (map (λ one. one.now) names.now) }
{
    names.iter().any(|one| name == *one)
}
