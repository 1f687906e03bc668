//! The bytes of made positions.
ghost use Rattle.std.specs.Prelude.{◌≡◌, ◌++◌, ◌∷◌, [], OnOk};
ghost use Rattle.room_ids.specs.Position.{above, amid, after, before};

use room_json::NoMemory;

fn add(made: &mut Vec<u8>, c: u8) -> Result<(), NoMemory>
    ensures { OnOk result (made.new.items ≡ made.old.items ++ c ∷ []) }
{
    made.push(c)?;
    Ok(())
}

pub(crate) fn push_after(made: &mut Vec<u8>, x: &[u8]) -> Result<(), NoMemory>
    ensures { OnOk result (made.new.items ≡ made.old.items ++ after x.now) }
{
    for c in x {
        if *c < 126 {
            return add(made, *c + 1);
        }
        add(made, *c)?;
    }
    add(made, 33)
}

pub(crate) fn push_before(made: &mut Vec<u8>, x: &[u8]) -> Result<(), NoMemory>
    ensures { OnOk result (made.new.items ≡ made.old.items ++ before x.now) }
{
    let mut rest = x;
    while let [c, tail @ ..] = rest {
        if *c != 32 {
            return if !tail.is_empty() {
                add(made, *c)
            } else if *c == 33 {
                add(made, 32)?;
                add(made, 126)
            } else {
                add(made, c.saturating_sub(1))
            };
        }
        add(made, *c)?;
        rest = tail;
    }
    Ok(())
}

pub(crate) fn push_above(made: &mut Vec<u8>, x: &[u8]) -> Result<(), NoMemory>
    ensures { OnOk result (made.new.items ≡ made.old.items ++ above x.now) }
{
    for a in x {
        if *a < 125 {
            return add(made, (*a + 126) / 2);
        }
        add(made, *a)?;
    }
    add(made, 79)
}

pub(crate) fn push_amid(made: &mut Vec<u8>, x: &[u8], y: &[u8]) -> Result<(), NoMemory>
    ensures { OnOk result (made.new.items ≡ made.old.items ++ amid x.now y.now) }
{
    let mut left = x;
    for b in y {
        let (a, behind) = match left {
            [a, behind @ ..] => (*a, behind),
            [] => (32, left),
        };
        if a != *b {
            if a.saturating_add(1) != *b {
                return add(made, ((u16::from(a) + u16::from(*b)) / 2) as u8);
            }
            add(made, a)?;
            return push_above(made, behind);
        }
        add(made, a)?;
        left = behind;
    }
    push_above(made, left)
}
