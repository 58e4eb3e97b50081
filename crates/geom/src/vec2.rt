// Vectors of the plane, by document 01's rules.
ghost use Rattle.std.specs.Prelude.{◌≡◌};
ghost use Rattle.geom.specs.Vec.{sum, difference, scaled, lerp_of, dot_of, cross_of, perp_of, square_of, distance_of, length_of, normalized_of, from_angle};

#[repr(C)]
#[derive(Clone, Copy)]
pub struct Vec2 {
    pub x: f64,
    pub y: f64,
}

impl Vec2 {
    pub fn add(self, b: Vec2) -> Vec2
        ensures { result ≡ sum self b }
    {
        Vec2 {
            x: self.x + b.x,
            y: self.y + b.y,
        }
    }

    pub fn sub(self, b: Vec2) -> Vec2
        ensures { result ≡ difference self b }
    {
        Vec2 {
            x: self.x - b.x,
            y: self.y - b.y,
        }
    }

    pub fn scale(self, k: f64) -> Vec2
        ensures { result ≡ scaled self k }
    {
        Vec2 {
            x: self.x * k,
            y: self.y * k,
        }
    }

    pub fn lerp(self, b: Vec2, t: f64) -> Vec2
        ensures { result ≡ lerp_of self b t }
    {
        Vec2 {
            x: self.x + (b.x - self.x) * t,
            y: self.y + (b.y - self.y) * t,
        }
    }

    pub fn dot(self, b: Vec2) -> f64
        ensures { result ≡ dot_of self b }
    {
        self.x * b.x + self.y * b.y
    }

    pub fn cross(self, b: Vec2) -> f64
        ensures { result ≡ cross_of self b }
    {
        self.x * b.y - self.y * b.x
    }

    pub fn perp(self) -> Vec2
        ensures { result ≡ perp_of self }
    {
        Vec2 {
            x: -self.y,
            y: self.x,
        }
    }

    // The square of the distance: the root is taken only where it is needed.
    pub fn square(self, b: Vec2) -> f64
        ensures { result ≡ square_of self b }
    {
        let dx = self.x - b.x;
        let dy = self.y - b.y;
        dx * dx + dy * dy
    }

    pub fn distance(self, b: Vec2) -> f64
        ensures { result ≡ distance_of self b }
    {
        numbers::root::sqrt(self.square(b))
    }

    pub fn length(self) -> f64
        ensures { result ≡ length_of self }
    {
        numbers::root::sqrt(self.x * self.x + self.y * self.y)
    }

    pub fn normalized(self) -> Vec2
        ensures { result ≡ normalized_of self }
    {
        let l = self.length();
        if l == 0.0 {
            Vec2 { x: 0.0, y: 0.0 }
        } else {
            Vec2 {
                x: self.x / l,
                y: self.y / l,
            }
        }
    }

    pub fn from_angle(a: f64) -> Vec2
        ensures { result ≡ from_angle a }
    {
        Vec2 {
            x: numbers::circle::cos(a),
            y: numbers::circle::sin(a),
        }
    }
}
