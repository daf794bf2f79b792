// A term, and a triple in which it stands.
ghost use Rattle.std.specs.Prelude.{◌≡◌, ◌<◌, ◌↔◌, IsTrue};
ghost use Rattle.std.proofs.Props.{props};
ghost use Rattle.meaning.specs.Limits.{terms};
ghost use Rattle.meaning.specs.Site.{Voc};
ghost use Rattle.records.specs.Sites.{site_of};

use fewest::task::Site;
use fewest::threads::witness;
use records::site::triple_at;

// A term, and a triple in which it stands as the threads say; the number of no triple where it is outside the vocabulary.
#[derive(Clone, Copy)]
pub struct Spot {
    pub term: usize,
    pub triple: usize,
    pub ghost inside: { term < terms } by { Prim.hlevel props },
}

impl Spot {
    pub fn of(scratch: &[u8], term: usize) -> Spot
        requires { term < terms }
        ensures { result.term ≡ term }
    {
        Spot {
            term,
            triple: witness(scratch, term),
        }
    }

    // The triple is one of the site.
    pub fn in_vocabulary(self, site: &Site) -> bool
        ensures { IsTrue result ↔ self.triple < site.now.triples }
    {
        self.triple < site.triples
    }

    // The triple is one of the site, and the term stands at one of its ends.
    pub fn stands(self, site: &Site) -> bool
        ensures { IsTrue result → Voc (site_of site.now.bytes.now site.now.triples) self.term }
    {
        if site.triples <= self.triple {
            return false;
        }
        let triple = triple_at(site.bytes, self.triple);
        triple.subject == self.term || triple.object == self.term
    }
}
