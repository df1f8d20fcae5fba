ghost use Rattle.search_tree.specs.Outset.{MayBegin};
ghost use Rattle.search_tree.specs.Partial.{begin};
ghost use Rattle.search_laws.specs.Good.{AreAllowed};

use crate::Db;

impl Db {
    /// Every partial plan was begun where a search may begin, and each of its parts was allowed. It
    /// does nothing, and tells its callers so.
    pub fn was_allowed(&self)
        ensures begins { MayBegin self.now.mission self.now.begun }
        ensures allowed { AreAllowed self.now.mission self.now.begun (begin self.now.mission self.now.begun) self.now.parts }
    {
        let _ = &self.alloc;
    }
}
