//! What is kept of a class, shared by the copies of the list it stands in.
ghost use Rattle.std.specs.Prelude.{◌≡◌, bytes_eq, IfOk};

use crate::NoMemory;
use crate::known::Known;
use std::alloc::Global;
use std::marker::Model;
use std::sync::Arc;

/// What is kept of a class. Contracts see it as that. Copies share it: a copy of all classes takes
/// a word for each.
#[derive(Drop)]
pub(crate) struct Shared {
    known: Arc<Known>,
}

impl Model for Shared {
    ghost use Rattle.std.specs.Arc.{arc_value};
    ghost use Rattle.jsp_types.specs.declared.known.Known.{Known};

    ghost Value = { Known };

    ghost view = { λ s. arc_value s.known };
}

impl Clone for Shared {
    ghost is_clone = { λ shared copy. copy ≡ shared };

    fn clone(&self) -> Result<Shared, NoMemory> {
        Ok(Shared {
            known: Arc::try_clone(&self.known)?,
        })
    }
}

impl Shared {
    /// What is kept, to be shared from here on.
    pub(crate) fn new(alloc: Global, known: Known) -> Result<Self, NoMemory>
        ensures { IfOk result (λ shared. shared ≡ known) }
    {
        Ok(Shared {
            known: Arc::new(alloc, known)?,
        })
    }

    /// What is kept.
    pub(crate) fn get(&self) -> &Known
        ensures { result.now ≡ self.now }
    {
        &self.known
    }

    /// Whether the class has this name.
    pub(crate) fn is_of(&self, name: &str) -> bool
        ensures { result ≡ bytes_eq self.now.class.name name.now }
    {
        self.get().class.name.is(name)
    }
}
