//! The calls that list published blocks.

ghost use Rattle.std.specs.Prelude.{◌≡◌};
ghost use Rattle.rz_events.specs.declared.export.Call.{Call};
ghost use Rattle.rz_export_model.specs.Export.{export_reply, published_after, next_on};

use crate::export::Export;
use rz_events::{Key, Listed, Reply};

impl Export {
    /// The least block above `after`, of all live files, whose published mask names the node. The time
    /// it takes grows as the logarithm of the number of blocks.
    pub fn next(&self, node: u16, after: Option<Key>) -> Reply
        ensures { result ≡ export_reply self.now (Call.Next node after) }
    {
        Reply::Listed(self.next_on(node, after))
    }

    /// The least published block of a live file above `after`, in logarithmic time too.
    pub fn published(&self, after: Option<Key>) -> Option<Listed>
        ensures { result ≡ published_after self.now after }
    {
        let (key, published) = self.blocks.next_published(after)?;
        let info = self.tree.file(key.fid)?;
        Some(Listed {
            key,
            info,
            published,
        })
    }

    // The least block above `after`, of all live files, whose published mask names the node.
    fn next_on(&self, node: u16, after: Option<Key>) -> Option<Listed>
        ensures { result ≡ next_on self.now node after }
    {
        let key = self.listed.next(node, after)?;
        let info = self.tree.file(key.fid)?;
        let published = self.blocks.look(key)?;
        Some(Listed {
            key,
            info,
            published,
        })
    }
}
