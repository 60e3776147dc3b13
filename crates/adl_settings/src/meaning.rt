//! What the settings of leaves and ends mean.

ghost use Rattle.std.specs.Prelude.{if◌then◌else◌, unwrap_or, ◌≡◌};
ghost use Rattle.adl_settings.specs.Allowed.{access_in, badge_in, irq_in, paddr_in, priority_in, size_in, stack_in};
ghost use Rattle.adl_settings.specs.EndMeaning.{access_of, badge_of, bytes_of, default_bytes, end_setting, irq_of, paddr_of};
ghost use Rattle.adl_settings.specs.Meant.{meant};
ghost use Rattle.adl_settings.specs.Settled.{leaf_setting};

use crate::allowed::{
    PAGE, access_in, badge_in, irq_in, paddr_in, priority_in, size_in, sized, stack_in,
};
use crate::{Access, Found, Given, LeafFound, is_shared};
use adl_ast::Interface;
use adl_meaning::{EndSetting, LeafSetting};

/// The bytes of a data port whose size doesn't stand there.
const DEFAULT_SIZE: u64 = 4096;

/// The priority of a leaf without such a setting.
const DEFAULT_PRIORITY: u8 = 254;

/// The bytes of a stack without such a setting.
const DEFAULT_STACK: u64 = 16_384;

/// The bytes of the port's type, in whole pages.
fn default_bytes(interface: &Interface) -> u64
    ensures { result ≡ default_bytes interface.now }
{
    sized(interface.size.unwrap_or(DEFAULT_SIZE)).unwrap_or(PAGE)
}

/// What is meant, where it counts and is allowed.
fn counted<T: Copy>(counts: bool, meant: Option<T>, otherwise: T) -> T
    ensures { result ≡ (if counts then unwrap_or meant otherwise else otherwise) }
{
    meant.filter(|_| counts).unwrap_or(otherwise)
}

impl<'a> LeafFound<'a> {
    /// The priority that is meant.
    pub fn priority(&self) -> Option<u8>
        ensures { result ≡ meant priority_in 254 self.now.priority }
    {
        let given = self.priority.as_ref();
        given.map_or(Some(DEFAULT_PRIORITY), |given| priority_in(given.value))
    }

    /// The bytes of a stack that are meant.
    pub fn stack(&self) -> Option<u64>
        ensures { result ≡ meant stack_in 16384 self.now.stack }
    {
        let given = self.stack.as_ref();
        given.map_or(Some(DEFAULT_STACK), |given| stack_in(given.value))
    }

    /// The settings of the leaf.
    pub fn setting(&self) -> LeafSetting
        ensures { result ≡ leaf_setting self.now }
    {
        let counts = !self.leaf.hardware;
        LeafSetting {
            priority: counted(counts, self.priority(), 0),
            stack: counted(counts, self.stack(), 0),
        }
    }
}

impl<'a> Found<'a> {
    /// The access that is meant.
    pub fn access(&self) -> Option<Access>
        ensures { result ≡ access_of self.now }
    {
        let default = Some(Access {
            read: true,
            write: true,
        });
        let given = self.access.as_ref();
        given.map_or(default, |given| access_in(given.value))
    }

    /// The badge that is meant.
    pub fn badge(&self) -> Option<u64>
        ensures { result ≡ badge_of self.now }
    {
        let given = self.badge.as_ref();
        given.map_or(Some(self.joint.position), |given| badge_in(given.value))
    }

    /// The bytes of memory that are meant.
    pub fn bytes(&self) -> Option<u64>
        ensures { result ≡ bytes_of self.now }
    {
        let default = default_bytes(self.joint.interface);
        let given = self.size.as_ref();
        given.map_or(Some(default), |given| size_in(given.value))
    }

    /// The bytes beside which an address is looked at: 0 where the size isn't allowed.
    fn counted_bytes(&self) -> u64
        ensures { result ≡ unwrap_or (bytes_of self.now) 0 }
    {
        self.bytes().unwrap_or(0)
    }

    /// The physical address that is meant.
    pub fn paddr(&self) -> Option<u64>
        ensures { result ≡ paddr_of self.now }
    {
        let value = self.paddr.as_ref()?.value;
        paddr_in(self.counted_bytes(), value)
    }

    /// The number of the interrupt that is meant.
    pub fn irq(&self) -> Option<u64>
        ensures { result ≡ irq_of self.now }
    {
        irq_in(self.irq.as_ref()?.value)
    }

    /// The settings of the end.
    pub fn setting(&self) -> EndSetting
        ensures { result ≡ end_setting self.now }
    {
        let joint = &self.joint;
        let no_access = Access {
            read: false,
            write: false,
        };
        let access = counted(joint.has_access(), self.access(), no_access);
        let has_memory = is_shared(joint.connection.connector) || joint.is_device_memory();
        EndSetting {
            read: access.read,
            write: access.write,
            badge: counted(joint.has_badge(), self.badge(), 0),
            bytes: counted(has_memory, self.bytes(), 0),
            paddr: self.paddr().unwrap_or(0),
            irq: self.irq().unwrap_or(0),
        }
    }
}
