ghost use Rattle.std.specs.Prelude.{◌≡◌, ℕ, List, map};
ghost use Rattle.serde_json.specs.Find.{get_member};
ghost use Rattle.blob_codec.specs.declared.blob.Attr.{Attr};
ghost use Rattle.blob_json.specs.ToJson.{last_named, members_of, named_of};

/// Under a name an object has the value of the last attribute with that name as text, and no other
/// member.
pub fn last_of_equal_names()
    ensures { (name : List ℕ) (attrs : List Attr) →
        get_member name (members_of attrs) ≡ last_named name (map named_of attrs) }
{}
