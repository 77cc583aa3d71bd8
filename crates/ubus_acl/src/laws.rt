ghost use Rattle.std.specs.Prelude.{◌≡◌, ◌<◌, ◌↔◌, ℕ, List, Result, Err, Some, None, IsSome, true};
ghost use Rattle.std.specs.Prelude.{codes};
ghost use Rattle.serde_json.specs.Data.{Items, Data, array};
ghost use Rattle.serde_json.specs.Find.{get_item};
ghost use Rattle.ubus_acl.specs.declared.acl.Acl.{Acl};
ghost use Rattle.ubus_acl.specs.declared.access_error.AclError.TheVariants.{BadRecord};
ghost use Rattle.ubus_acl.specs.Acl as spec;
ghost use Rattle.ubus_acl.specs.Form.{record_of, records_from, IsFirstBad};

/// The item that is told is no record, and each one before it is.
pub fn first_bad_record()
    ensures { (items : Items) (index : ℕ) → records_from 0 items ≡ Err (BadRecord index) →
        IsFirstBad items index }
{}

/// Whatever the list, the user `root` may do all.
pub fn root_may_do_all()
    ensures call { (group object method : List ℕ) (acl : Acl) →
        spec.may_call (codes "root") group object method acl ≡ true }
    ensures publish { (group path : List ℕ) (acl : Acl) →
        spec.may_publish (codes "root") group path acl ≡ true }
    ensures subscribe { (group path : List ℕ) (acl : Acl) →
        spec.may_subscribe (codes "root") group path acl ≡ true }
    ensures send { (group id : List ℕ) (acl : Acl) →
        spec.may_send (codes "root") group id acl ≡ true }
    ensures listen { (group pattern : List ℕ) (acl : Acl) →
        spec.may_listen (codes "root") group pattern acl ≡ true }
{}
