ghost use Rattle.std.specs.Prelude.{◌≡◌, ℕ, List, Err};
ghost use Rattle.serde_json.specs.Data.{Items};
ghost use Rattle.rpc_login.specs.declared.group_error.GroupError.TheVariants.{BadGroup};
ghost use Rattle.rpc_login.specs.Form.{groups_from, IsFirstBad};
ghost use Rattle.rpc_login.specs.Password.{IsSalt, PasswordFits, digest_of, stored_text};

/// A stored text fits the password that it was made of.
pub fn stored_text_fits()
    ensures { (salt password : List ℕ) → IsSalt salt →
        PasswordFits (stored_text salt password) password }
{}

/// A stored text has one salt.
pub fn one_salt()
    ensures { (a b first second : List ℕ) → IsSalt a → IsSalt b →
        stored_text a first ≡ stored_text b second → a ≡ b }
{}

/// A stored text fits two passwords only where their digests with its salt are equal.
pub fn one_digest()
    ensures { (stored first second : List ℕ) →
        (one : PasswordFits stored first) → (other : PasswordFits stored second) →
        digest_of one.salt first ≡ digest_of other.salt second }
{}

/// The element that is told is of another form, and each one before it is of the form.
pub fn first_bad_group()
    ensures { (items : Items) (index : ℕ) → groups_from 0 items ≡ Err (BadGroup index) →
        IsFirstBad items index }
{}
