// What the geometry keeps to.
ghost use Rattle.geometry.specs.Cases.{Cases};
ghost use Rattle.geometry.specs.Floors.{Floor};
ghost use Rattle.geometry.specs.Lines.{Ends};

// Carries the laws of the geometry and its worked cases.
pub fn geometry_stands()
    ensures floor { Floor }
    ensures ends { Ends }
    ensures cases { Cases }
{}
