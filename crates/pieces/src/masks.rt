use fpage::Rights;
use std::alloc::{AllocError, Global};
use std::marker::Model;
use std::snapshot::Snapshot;

/// The rights that the nodes of a strip lose, node by node. Those of a part of a run take no memory.
#[derive(Drop)]
pub struct Masks {
    form: Form,
}

#[derive(Drop)]
enum Form {
    /// So many nodes of a run, which all lose these rights; the first may be spared. How many is there for contracts alone.
    Run {
        nodes: Snapshot<usize>,
        revoked: Rights,
        spared: bool,
    },
    /// Each node loses rights of its own. They are rare: boxed, they make no strip longer.
    Each(Box<Vec<Rights>>),
}

impl Model for Masks {
    ghost use Rattle.std.specs.Prelude.{List};
    ghost use Rattle.fpage.specs.declared.rights.Rights.{Rights};
    ghost use Rattle.pieces.specs.Forms.{masks_in};

    ghost Value = { List Rights };

    ghost view = { λ m. masks_in m.form };
}

impl Masks {
    ghost use Rattle.std.specs.Prelude.{◌≡◌, ◌<◌, length, get_or, IfOk};
    ghost use Rattle.fpage.specs.declared.rights.Rights.{Rights};
    ghost use Rattle.pieces.specs.Masks.{masks_of};

    /// These masks.
    pub fn new(alloc: Global, list: Vec<Rights>) -> Result<Masks, AllocError>
        ensures { IfOk result (λ masks. masks ≡ list.items) }
    {
        let list = Box::new(alloc, list)?;
        Ok(Masks {
            form: Form::Each(list),
        })
    }

    /// The rights that so many nodes of a run lose, of which the first may be spared.
    pub fn of_run(nodes: usize, revoked: Rights, spared: bool) -> Masks
        ensures { result ≡ masks_of spared revoked nodes }
    {
        let nodes = Snapshot::of(&nodes);
        Masks {
            form: Form::Run {
                nodes,
                revoked,
                spared,
            },
        }
    }

    /// The mask at a position.
    pub fn get(&self, i: usize) -> Rights
        requires { i < length self.now }
        ensures { (d : Rights) → result ≡ get_or self.now i d }
    {
        match &self.form {
            Form::Run {
                revoked,
                spared,
                ..
            } => {
                if *spared && i == 0 {
                    Rights::none()
                } else {
                    *revoked
                }
            }
            Form::Each(list) => list[i],
        }
    }
}
