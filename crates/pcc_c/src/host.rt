//! The handle by which a C program holds a host.

ghost use Rattle.std.specs.Prelude.{◌≡◌, ◌==◌, Some, None, IsSome, is_some};

use crate::held::HeldHost;
use safe_host::HostRunner;
use std::alloc::Global;

/// A host that a C program holds, or none, and whether there is one: `live` is 1 exactly if there
/// is.
#[repr(C)]
#[derive(Drop)]
pub struct PccHost {
    live: u32,
    held: HeldHost,
    pub ghost tied: { is_some held.runner ≡ (live == 1) },
}

impl PccHost {
    /// Returns a handle without a host.
    pub(crate) fn closed(alloc: Global) -> PccHost
        ensures { result.held.runner ≡ None }
    {
        PccHost {
            live: 0,
            held: HeldHost::none(alloc),
        }
    }

    /// Returns a handle of the host in the box.
    pub(crate) fn open(runner: Box<HostRunner>) -> PccHost
        ensures { result.held.runner ≡ Some runner.value }
    {
        PccHost {
            live: 1,
            held: HeldHost::of(runner),
        }
    }

    /// Returns whether there is a host.
    pub(crate) fn is_open(&self) -> bool
        ensures { result ≡ is_some self.now.held.runner }
    {
        self.live == 1
    }

    /// Returns the box of the host.
    pub(crate) fn into_box(self) -> Box<HostRunner>
        requires { IsSome self.held.runner }
        ensures { self.held.runner ≡ Some result.value }
    {
        let PccHost { live: _, held } = self;
        held.into_box()
    }
}
