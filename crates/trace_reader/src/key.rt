ghost use Rattle.std.specs.Prelude.{◌≡◌, ◌↔◌, Some};
ghost use Rattle.graph_meaning.specs.declared.refusal.FieldName.{FieldName};
ghost use Rattle.trace_reader.specs.Meaning.{field_text};

use graph_meaning::FieldName;

/// The field that is spelled so, if there is one.
#[inline(always)]
#[tactic(auto, using(crate::proofs::FieldLemmas::spelled))]
pub fn field_spelled(key: &str) -> Option<FieldName>
    ensures { (field : FieldName) → (result ≡ Some field) ↔ (key.now ≡ field_text field) }
{
    match key.as_bytes() {
        b"op" => Some(FieldName::OpField),
        b"id" => Some(FieldName::IdField),
        b"at" => Some(FieldName::AtField),
        b"to" => Some(FieldName::ToField),
        b"type" => Some(FieldName::TypeField),
        b"slot" => Some(FieldName::SlotField),
        b"name" => Some(FieldName::NameField),
        b"weak" => Some(FieldName::WeakField),
        b"slots" => Some(FieldName::SlotsField),
        b"limit" => Some(FieldName::LimitField),
        b"owner" => Some(FieldName::OwnerField),
        b"ownee" => Some(FieldName::OwneeField),
        b"thread" => Some(FieldName::ThreadField),
        _ => None,
    }
}
