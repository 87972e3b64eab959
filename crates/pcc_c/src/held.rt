//! The box of a host that a C program holds.

ghost use Rattle.std.specs.Prelude.{◌≡◌, Option, Some, None, IsSome};
ghost use Rattle.safe_host.specs.declared.runner.HostRunner.{HostRunner};
ghost use Rattle.pcc_c.specs.Inside.Held.{owned, runner_coded};

mod parts;

use parts::Parts;
use safe_host::HostRunner;
use std::alloc::Global;
use std::marker::Model;
use std::ptr::null_mut;

/// A host, by the pointer of its box, or none. Contracts see the host, if there is one.
#[repr(C)]
#[derive(Drop)]
pub struct HeldHost {
    ptr: *mut u8,
    alloc: Global,
    pub ghost runner: { Option HostRunner } by { runner_coded },
}

impl Model for HeldHost {
    ghost also_owns = { λ h. owned h.alloc h.ptr h.runner };
}

impl HeldHost {
    /// Returns no host.
    pub(crate) fn none(alloc: Global) -> HeldHost
        ensures { result.runner ≡ None }
    {
        HeldHost {
            ptr: null_mut(),
            alloc,
        }
    }

    /// Returns the host in the box.
    pub(crate) fn of(runner: Box<HostRunner>) -> HeldHost
        ensures { result.runner ≡ Some runner.value }
    {
        HeldHost::of_parts(Parts::of(runner))
    }

    fn of_parts(parts: Parts<HostRunner, Global>) -> HeldHost
        ensures { result.runner ≡ Some parts.value }
    {
        let Parts { ptr, alloc } = parts;
        let ptr = ptr as *mut u8;
        HeldHost { ptr, alloc }
    }

    /// Returns the box of the host.
    pub(crate) fn into_box(self) -> Box<HostRunner>
        requires { IsSome self.runner }
        ensures { self.runner ≡ Some result.value }
    {
        self.into_parts().into_box()
    }

    fn into_parts(self) -> Parts<HostRunner, Global>
        requires { IsSome self.runner }
        ensures { self.runner ≡ Some result.value }
    {
        let HeldHost { ptr, alloc } = self;
        let ptr = ptr as *mut HostRunner;
        Parts { ptr, alloc }
    }
}
