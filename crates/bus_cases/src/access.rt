use ubus_acl::{Acl, fits_front};

/// `yes` or `no`.
fn put_answer(is_so: bool, out: &mut Vec<u8>) -> anyhow::Result<()> {
    let answer: &[u8] = if is_so { b"yes\n" } else { b"no\n" };
    out.extend_from_slice(answer)?;
    Ok(())
}

/// Whether the text fits the pattern.
pub(crate) fn fits(pattern: &str, text: &str, out: &mut Vec<u8>) -> anyhow::Result<()> {
    put_answer(fits_front(pattern.as_bytes(), text.as_bytes()), out)
}

/// Whether the access list permits what the words ask for.
pub(crate) fn may(acl: &Acl, words: &[&str], out: &mut Vec<u8>) -> anyhow::Result<()> {
    let is_so = match words {
        ["call", user, group, object, method] => acl.may_call(
            user.as_bytes(),
            group.as_bytes(),
            object.as_bytes(),
            method.as_bytes(),
        ),
        [verb, user, group, name] => asks(
            acl,
            verb,
            user.as_bytes(),
            group.as_bytes(),
            name.as_bytes(),
        )?,
        _ => return Err(anyhow::anyhow!("no such question")),
    };
    put_answer(is_so, out)
}

fn asks(acl: &Acl, verb: &str, user: &[u8], group: &[u8], name: &[u8]) -> anyhow::Result<bool> {
    Ok(match verb {
        "publish" => acl.may_publish(user, group, name),
        "subscribe" => acl.may_subscribe(user, group, name),
        "send" => acl.may_send(user, group, name),
        "listen" => acl.may_listen(user, group, name),
        _ => return Err(anyhow::anyhow!("no such verb")),
    })
}
