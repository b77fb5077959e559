//! Laws of the code of sites.

ghost use Rattle.air_stackmap.specs.Laws.{MovesRun, PatchesAreSites, PatchesNameOwn, SitesAreExpressed, SitesAreGood, SitesAreKept, SitesAreLight, SitesRead, SitesWrite, TemporariesStay};

/// Tells that a value with a stackmap of a valid procedure keeps the rules on stackmaps, that the instruction of its
/// site is expressed for it, that the instructions of the site are good ones and weigh little, and that their run puts
/// the words of the children where the site finds them. It takes no memory.
pub fn site_laws()
    ensures kept { SitesAreKept }
    ensures patches { PatchesAreSites }
    ensures expressed { SitesAreExpressed }
    ensures good { SitesAreGood }
    ensures own { PatchesNameOwn }
    ensures light { SitesAreLight }
    ensures run { MovesRun }
    ensures stay { TemporariesStay }
    ensures reads { SitesRead }
    ensures writes { SitesWrite }
{}
